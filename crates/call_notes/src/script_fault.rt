//! Why a script is refused.
use addr_calc::calc_fault::CalcFault;

/// Why a script is refused: its length, or the fault of its first line that has one.
#[derive(Clone, Copy, Debug, PartialEq, Eq)]
pub enum ScriptFault {
    /// The script has more than 1,048,576 bytes.
    TooLong,
    /// This line has this fault.
    Calc(CalcFault),
}
