//! Why requests are not served, or not all.

/// Why requests were not served, or not all.
#[derive(Clone, Copy, Debug, PartialEq, Eq)]
pub enum ServiceFault {
    /// The address can't be listened on. Nothing was printed.
    Listen,
    /// A line could not be written, or only a first part of it. No later request was served.
    Output,
}
