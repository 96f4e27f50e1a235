//! Why a certificate is not valid.

/// Why a certificate is not valid for a trace. Each number is that of the request, the header or the record where the
/// rule fails; a number that is counted is the one that the trace and the records give.
#[derive(Clone, Copy, Debug, PartialEq, Eq)]
pub enum InvalidKind {
    /// The words of a line are not those of its place.
    Shape,
    /// A word that should write a number writes none.
    Number,
    /// A number is outside its range.
    Range,
    /// A line has too many bytes.
    TooLong,
    /// The input ends before the end of a line.
    Truncated,
    /// Something follows the line `end`.
    Trailing,
    /// The trace has not as many requests as the header says; this number was read.
    RequestCount { written: u128, read: u64 },
    /// The units times the sum of the prices so far pass 2^126.
    SumLimit,
    /// The price of the last record is not 0.
    LastPrice { price: u128 },
    /// The unit does not divide the size of an object that fits the capacity. The request counts, and is not the first
    /// of the object.
    UnitNotDivisor { unit: u64, size: u64 },
    /// The form is exact, and the cost of an interval of this weight is not whole.
    NotDivisible { weight: u64 },
    /// The objects that are kept have more bytes than the capacity.
    Overfull { load: u128, capacity: u64 },
    /// The flow passes the weight of the object, which is 0 if the object is larger than the capacity.
    FlowAboveWeight { flow: u128, weight: u64 },
    /// The flows over a step pass the units.
    FlowOverfull { load: u128, units: u64 },
    /// A request has a flow, though no interval that counts starts there: it is the last of its object, or the next one
    /// doesn't count. Records count from 0.
    Unused { number: u64 },
    /// The upper bound is not that of the prices.
    UpperDiffers { written: u128, counted: u128 },
    /// The value of the flows is not the one written.
    FlowDiffers { written: u128, counted: u128 },
    /// The score of the keeps is not the one written.
    LowerDiffers { written: u128, counted: u128 },
    /// The form is exact, and the upper bound and the value of the flows are not equal.
    ExactGap { upper: u128, flow: u128 },
}
