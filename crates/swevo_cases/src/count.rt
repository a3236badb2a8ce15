//! How many cases agree.

use std::alloc::AllocError;

/// How many cases were tried, how many of them agree, and whether something could not be read.
#[derive(Drop)]
pub struct Count {
    all: u64,
    agree: u64,
    unreadable: bool,
}

impl Count {
    pub fn none() -> Count {
        Count {
            all: 0,
            agree: 0,
            unreadable: false,
        }
    }

    pub fn all(&self) -> u64 {
        self.all
    }

    pub fn agree(&self) -> u64 {
        self.agree
    }

    /// Counts a case.
    pub fn case(&mut self, agrees: bool) {
        self.all = self.all.saturating_add(1);
        if agrees {
            self.agree = self.agree.saturating_add(1);
        }
    }

    /// Reports something that cannot be read as an archive or a case.
    pub fn unreadable(
        &mut self,
        report: &mut String,
        name: &str,
        why: &str,
    ) -> Result<(), AllocError> {
        self.unreadable = true;
        report.push_str(name)?;
        report.push_str(": not read: ")?;
        report.push_str(why)?;
        report.push_str("\n")?;
        Ok(())
    }

    /// Whether all that was asked for was read, there was some case, and all agree.
    pub fn is_whole(&self) -> bool {
        !self.unreadable && self.all > 0 && self.agree == self.all
    }
}
