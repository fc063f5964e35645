//! Which slice of a run the words of a call name.

/// One of so many slices, counted from 1.
#[derive(Clone, Copy, Debug, PartialEq, Eq)]
pub struct Slice {
    pub number: u64,
    pub of: u64,
}

impl Slice {
    /// The slice that a word `J/N` names, if it names one.
    pub fn of_word(word: &str) -> Option<Slice> {
        let (number, of) = word.split_once('/')?;
        let number = number.parse::<u64>().ok()?;
        let of = of.parse::<u64>().ok()?;
        if 1 <= number && number <= of {
            Some(Slice { number, of })
        } else {
            None
        }
    }
}
