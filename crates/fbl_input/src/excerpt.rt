//! Excerpts of texts.

use std::fmt;
use std::fmt::Write;

/// How many characters of a text an excerpt has.
const LONGEST: usize = 60;

/// Passes on so many characters, then dots, and no more.
#[derive(Drop)]
struct Cut<'a, W> {
    writer: &'a mut W,
    left: usize,
    is_cut: bool,
}

impl<W: Write> Write for Cut<'_, W> {
    fn write_str(&mut self, text: &str) -> fmt::Result {
        for character in text.chars() {
            if self.is_cut {
                return Ok(());
            }
            if self.left == 0 {
                self.is_cut = true;
                return self.writer.write_str("..");
            }
            self.left -= 1;
            self.writer.write_char(character)?;
        }
        Ok(())
    }
}

/// The first 60 characters of a text, with dots where there are more.
#[derive(Clone, Copy)]
pub(crate) struct Excerpt<'a>(pub(crate) &'a str);

impl fmt::Display for Excerpt<'_> {
    fn fmt<W: Write>(&self, f: &mut fmt::Formatter<W>) -> fmt::Result {
        let mut cut = Cut {
            writer: f,
            left: LONGEST,
            is_cut: false,
        };
        cut.write_str(self.0)
    }
}
