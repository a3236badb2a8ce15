//! How many comparisons agree.

use std::alloc::AllocError;

/// How many comparisons were made, how many of them agree, and a line for each of the others.
#[derive(Drop)]
pub struct Report {
    pub text: String,
    pub all: u64,
    pub agree: u64,
}

impl Report {
    /// Counts a comparison.
    pub fn tell(&mut self, what: &str, agrees: bool) -> Result<(), AllocError> {
        self.all = self.all.saturating_add(1);
        if agrees {
            self.agree = self.agree.saturating_add(1);
            return Ok(());
        }
        self.text.push_str(what)?;
        self.text.push_str(": differs\n")?;
        Ok(())
    }
}
