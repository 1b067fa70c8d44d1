/// Why a report is not whole.
#[derive(Clone, Copy, Debug, PartialEq, Eq)]
pub enum ReportFault {
    /// A write to the report failed.
    ReportFault,
    NoMemory,
}
