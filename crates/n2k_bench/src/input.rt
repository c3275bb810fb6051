//! The sections of the input.

/// The text of each section; empty if the section is missing.
#[derive(Clone, Copy)]
pub(crate) struct Input<'a> {
    text: &'a str,
}

impl<'a> Input<'a> {
    /// Splits a text into its sections. A section begins with a line `=== NAME`.
    pub(crate) fn of(text: &'a str) -> Input<'a> {
        Input { text }
    }

    /// The lines between this heading and the next one.
    pub(crate) fn section(&self, head: &str) -> &'a str {
        match self.text.split_once(head) {
            Some((_, after)) => match after.split_once("=== ") {
                Some((lines, _)) => lines,
                None => after,
            },
            None => "",
        }
    }

    /// Recorded lines of a boat's bus.
    pub(crate) fn bus(&self) -> &'a str {
        self.section("=== bus\n")
    }

    /// Whole messages.
    pub(crate) fn whole(&self) -> &'a str {
        self.section("=== whole\n")
    }

    /// Bad lines.
    pub(crate) fn bad(&self) -> &'a str {
        self.section("=== bad\n")
    }

    /// Frames that each open a group.
    pub(crate) fn open(&self) -> &'a str {
        self.section("=== open\n")
    }

    /// The table.
    pub(crate) fn table(&self) -> &'a str {
        self.section("=== table\n")
    }
}
