//! A page that is being written.
ghost use Rattle.std.specs.Prelude.{◌≡◌, ◌++◌, OnOk};
ghost use Rattle.packets.specs.Escaped.{escaped};

use crate::report::escape::append_escaped;
use std::alloc::{AllocError, Global};
use std::fmt::Display;

/// A page of HTML that is being written. Markup is constant; all else goes through `text`, which escapes it.
/// Where a function has no contract tests compare the texts.
#[derive(Drop)]
pub(crate) struct Page {
    alloc: Global,
    out: Vec<u8>,
}

impl Page {
    /// An empty one.
    pub(crate) fn new(alloc: Global) -> Page {
        Page {
            alloc,
            out: Vec::new(alloc),
        }
    }

    /// The bytes that were written.
    pub(crate) fn bytes(&self) -> &[u8] {
        self.out.as_slice()
    }

    /// Writes markup.
    pub(crate) fn markup(&mut self, markup: &'static str) -> Result<(), AllocError>
        ensures { OnOk result (self.new.out.items ≡ self.old.out.items ++ markup.now) }
    {
        self.out.extend_from_slice(markup.as_bytes())
    }

    /// Writes a text.
    pub(crate) fn text(&mut self, text: &str) -> Result<(), AllocError>
        ensures { OnOk result (self.new.out.items ≡ self.old.out.items ++ escaped text.now) }
    {
        append_escaped(text.as_bytes(), &mut self.out)
    }

    /// Writes the text of a value.
    pub(crate) fn shown<T: Display + Drop>(&mut self, value: T) -> Result<(), AllocError> {
        let Ok(text) = format!(in self.alloc; "{value}") else {
            return Err(AllocError);
        };
        self.text(text.as_str())
    }

    /// Begins a section with this name and heading.
    pub(crate) fn begin_section(
        &mut self,
        name: &'static str,
        heading: &'static str,
    ) -> Result<(), AllocError> {
        self.markup("<section id=\"")?;
        self.markup(name)?;
        self.markup("\">\n<h2>")?;
        self.markup(heading)?;
        self.markup("</h2>\n")
    }

    /// Ends it.
    pub(crate) fn end_section(&mut self) -> Result<(), AllocError> {
        self.markup("</section>\n")
    }

    /// Begins a table that may be wider than the page, with the titles of its columns; those of numbers
    /// are to the right.
    pub(crate) fn begin_table(
        &mut self,
        titles: &[(&'static str, bool)],
    ) -> Result<(), AllocError> {
        self.markup("<div class=\"wide\" tabindex=\"0\"><table>\n<thead><tr>")?;
        for (title, is_number) in titles {
            self.markup(if *is_number {
                "<th scope=\"col\" class=\"n\">"
            } else {
                "<th scope=\"col\">"
            })?;
            self.markup(*title)?;
            self.markup("</th>")?;
        }
        self.markup("</tr></thead>\n<tbody>\n")
    }

    /// Ends it.
    pub(crate) fn end_table(&mut self) -> Result<(), AllocError> {
        self.markup("</tbody></table></div>\n")
    }

    /// A cell with a number.
    pub(crate) fn number<T: Display + Drop>(&mut self, value: T) -> Result<(), AllocError> {
        self.markup("<td class=\"n\">")?;
        self.shown(value)?;
        self.markup("</td>")
    }

    /// The first cell of a row, which names it.
    pub(crate) fn name<T: Display + Drop>(&mut self, value: T) -> Result<(), AllocError> {
        self.markup("<tr><th scope=\"row\">")?;
        self.shown(value)?;
        self.markup("</th>")
    }

    /// Ends a row.
    pub(crate) fn end_row(&mut self) -> Result<(), AllocError> {
        self.markup("</tr>\n")
    }

    /// A paragraph with a text.
    pub(crate) fn paragraph<T: Display + Drop>(&mut self, value: T) -> Result<(), AllocError> {
        self.markup("<p>")?;
        self.shown(value)?;
        self.markup("</p>\n")
    }
}
