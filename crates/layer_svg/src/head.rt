//! The head of a picture.
ghost use Rattle.std.specs.Prelude.{◌≡◌, ◌+◌, ◌<◌, ◌≤◌, ◌++◌, length};
ghost use Rattle.layer_api.specs.declared.line.TheConstants.{LINE_ROOM};
ghost use Rattle.layer_api.specs.SvgText.{height, scale_text, half_text, six_figures, millionths_text, head_text};

use cyclo_points::order::Order;
use layer_api::line::Line;
use layer_api::view::View;

/// Returns the length, in millionths, of one unit of the coordinate Y in the plane, rounded.
fn height(order: Order) -> u64
    ensures value { result ≡ height order }
    ensures at_most { result ≤ 1000000 }
{
    match order {
        Order::Four => 1000000,
        Order::Six => 866025,
        Order::Eight => 707107,
        Order::Ten => 587785,
    }
}

/// Returns a thousandth of that length, as a decimal.
fn scale_text(order: Order) -> &'static [u8]
    ensures text { result.now ≡ scale_text order }
    ensures at_most { length result.now ≤ 11 }
{
    match order {
        Order::Four => b"0.001",
        Order::Six => b"0.000866025",
        Order::Eight => b"0.000707107",
        Order::Ten => b"0.000587785",
    }
}

/// Puts half of a number in front: its integer part, then `.0` or `.5`.
fn put_half(line: &mut Line, number: u16)
    requires room { length line.old + 22 ≤ LINE_ROOM }
    ensures half { line.new ≡ half_text number ++ line.old }
    ensures at_most { length line.new ≤ length line.old + 22 }
{
    if number % 2 == 0 {
        line.put_text(b".0");
    } else {
        line.put_text(b".5");
    }
    line.put_number(u64::from(number / 2));
}

/// Puts a number below 1,000,000 in front, with six digits.
fn put_six_figures(line: &mut Line, number: u64)
    requires small { number < 1000000 }
    requires room { length line.old + 6 ≤ LINE_ROOM }
    ensures figures { line.new ≡ six_figures number ++ line.old }
{
    line.put(b'0' + (number % 10) as u8);
    line.put(b'0' + (number / 10 % 10) as u8);
    line.put(b'0' + (number / 100 % 10) as u8);
    line.put(b'0' + (number / 1000 % 10) as u8);
    line.put(b'0' + (number / 10000 % 10) as u8);
    line.put(b'0' + (number / 100000 % 10) as u8);
}

/// Puts a number of millionths in front: the integer part, a point, and six digits.
fn put_millionths(line: &mut Line, number: u64)
    requires room { length line.old + 27 ≤ LINE_ROOM }
    ensures millionths { line.new ≡ millionths_text number ++ line.old }
    ensures at_most { length line.new ≤ length line.old + 27 }
{
    put_six_figures(line, number % 1000000);
    line.put(b'.');
    line.put_number(number / 1000000);
}

/// Puts the head of a picture of this view in front.
pub(crate) fn put_head(line: &mut Line, view: &View)
    requires room { length line.old + 300 ≤ LINE_ROOM }
    ensures { line.new ≡ head_text view.now ++ line.old }
{
    let h = u64::from(view.h) * height(view.order);
    line.put_text(b")\" fill=\"none\" stroke=\"black\" stroke-width=\"40\">\n");
    line.put_text(scale_text(view.order));
    line.put_text(b"\">\n<g transform=\"scale(0.0005 -");
    put_millionths(line, 2 * h);
    line.put(b' ');
    line.put_number(u64::from(view.w));
    line.put(b' ');
    put_millionths(line, h);
    line.put_text(b" -");
    put_half(line, view.w);
    line.put_text(b"<svg xmlns=\"http://www.w3.org/2000/svg\" version=\"1.1\" viewBox=\"-");
}
