//! Pseudorandom numbers, windows, edges and addresses.
use cyclo_points::order::Order;
use cyclo_points::point::Point;
use plane_geom::window::Window;
use tile_place::machine::Machine;
use tile_shape::address::Address;
use tile_shape::step::Step;

/// A linear congruential generator of pseudorandom numbers.
#[derive(Drop)]
pub struct Draws {
    pub state: u64,
}

impl Draws {
    /// Returns a number below n, or 0 if n is 0.
    pub fn below(&mut self, n: u64) -> u64 {
        self.state = self
            .state
            .wrapping_mul(6364136223846793005)
            .wrapping_add(1442695040888963407);
        (self.state >> 33).checked_rem(n).unwrap_or(0)
    }

    /// Returns a number from -n to n.
    fn round_0(&mut self, n: u32) -> i64 {
        let n = i64::from(n);
        let wide = u64::try_from(n.wrapping_mul(2).wrapping_add(1)).unwrap_or(1);
        i64::try_from(self.below(wide)).unwrap_or(0).wrapping_sub(n)
    }

    /// Returns a window with a half-width and half-height of 1 to 6. Coefficients of its centre go from
    /// `-far` to `far`.
    pub fn window(&mut self, order: Order, far: u32) -> Window {
        self.sized_window(order, far, 6)
    }

    /// Like [`window`](Self::window), but with a half-width and half-height of 1 to `most`.
    pub fn sized_window(&mut self, order: Order, far: u32, most: u64) -> Window {
        let mut c = [self.round_0(far), self.round_0(far), 0, 0];
        match order {
            Order::Four | Order::Six => {}
            Order::Eight | Order::Ten => {
                c[2] = self.round_0(far);
                c[3] = self.round_0(far);
            }
        }
        Window {
            centre: Point { c },
            w: u16::try_from(self.below(most)).unwrap_or(0).wrapping_add(1),
            h: u16::try_from(self.below(most)).unwrap_or(0).wrapping_add(1),
        }
    }

    /// Returns an edge of a kind. It is not the edge `came`, if the kind has another one.
    pub fn edge(&mut self, machine: &Machine, kind: u8, came: Option<u8>) -> Option<u8> {
        let tables = machine.checked().tables();
        if kind >= tables.kinds() {
            return None;
        }
        let edges = u64::from(tables.edges(kind));
        match came {
            None => u8::try_from(self.below(edges)).ok(),
            Some(came) => {
                let ahead = self.below(edges.saturating_sub(1)).wrapping_add(1);
                u8::try_from(ahead.wrapping_add(u64::from(came)).checked_rem(edges)?).ok()
            }
        }
    }

    /// Returns a digit above a tile of this kind, from the kind's uses: a random one, or the first.
    fn digit(&mut self, machine: &Machine, kind: u8, any: bool) -> Option<Step> {
        let uses = machine.checked().uses();
        if kind >= uses.kinds() {
            return None;
        }
        let count = uses.count(kind);
        let drawn = if any { self.below(u64::from(count)) } else { 0 };
        let number = u16::try_from(drawn).ok()?;
        if number >= count {
            return None;
        }
        Some(uses.get(kind, number))
    }

    /// Returns an address of a depth. Its digits are random, or each is the first possible one. Then the tile
    /// lies at the border of its supertile, if the first child does.
    pub fn address(&mut self, machine: &Machine, depth: u64, any: bool) -> Option<Address> {
        let kinds = machine.checked().uses().kinds();
        let mut kind = u8::try_from(self.below(u64::from(kinds))).ok()?;
        let mut addr = Address::new(kind);
        for _ in 0..depth {
            let digit = self.digit(machine, kind, any)?;
            addr.push_coarse(digit).ok()?;
            kind = digit.parent;
        }
        Some(addr)
    }
}
