//! Tests the low layers: framing, texts, scanning, operators and messages. The tests are examples
//! with known answers. Some of them also run with failing allocations.
#![tactic(auto)]

/// Builds a table of rows, each written `ROW;`, or of pairs, each written `INPUT => EXPECTED;`.
#[cfg(test)]
macro_rules! rows {
    ($($asked:expr => $wanted:expr;)*) => { &[$(($asked, $wanted)),*] };
    ($($row:expr;)*) => { &[$($row),*] };
}

#[cfg(test)]
mod cases;
#[cfg(test)]
mod documents;
#[cfg(test)]
mod frame;
#[cfg(test)]
mod lines;
#[cfg(test)]
mod rescan;
#[cfg(test)]
mod rpc;
#[cfg(test)]
mod scan;
#[cfg(test)]
mod text;
#[cfg(test)]
mod values;
