ghost use Rattle.std.specs.Prelude.{◌≡◌, ◌≤◌, ◌++◌, ◌↔◌, List, [], true, IsTrue, OnOk, IfOk, string_bytes};
ghost use Rattle.marc8_latin.specs.declared.part.Meaning.{Meaning};
ghost use Rattle.marc8_latin.specs.Text.{shown};
ghost use Rattle.marc8_latin.specs.Progress.{is_plain, IsWritten};
ghost use Rattle.std.specs.List.{list_all};
ghost use Rattle.std.specs.String.{string_capacity};

use crate::part::Meaning;
use std::alloc::{AllocError, Global};

/// Stands before each subfield's code.
const DELIMITER: char = '\u{1f}';

/// A text in the making. Marks wait for their base.
#[derive(Drop)]
pub struct Writer {
    pub text: String,
    pub run: String,
}

impl Writer {
    /// Nothing yet, with room for so many bytes.
    pub fn new(alloc: Global, capacity: usize) -> Result<Writer, AllocError>
        ensures text { IfOk result (λ writer. string_bytes writer.text ≡ []) }
        ensures run { IfOk result (λ writer. string_bytes writer.run ≡ []) }
        ensures room { IfOk result (λ writer. capacity ≤ string_capacity writer.text) }
    {
        Ok(Writer {
            text: String::with_capacity(alloc, capacity)?,
            run: String::new(alloc),
        })
    }

    /// Whether no mark waits.
    pub fn is_settled(&self) -> bool
        ensures { IsTrue result ↔ (string_bytes self.now.run ≡ []) }
    {
        self.run.as_bytes().is_empty()
    }

    /// Bytes that are their own text stand behind what was written.
    pub fn put_plain(&mut self, bytes: &[u8]) -> Result<(), AllocError>
        requires { list_all is_plain bytes.now ≡ true }
        ensures text { OnOk result (string_bytes self.new.text ≡ string_bytes self.old.text ++ bytes.now) }
        ensures run { string_bytes self.new.run ≡ string_bytes self.old.run }
    {
        // Plain bytes are ASCII, so no second scan has to show that this is UTF-8.
        self.text
            .push_str(unsafe { std::str::from_utf8_unchecked(bytes) })
    }

    /// What a part shows stands behind what was written.
    pub fn put(&mut self, meaning: Meaning) -> Result<(), AllocError>
        ensures { OnOk result ((characters : List Meaning)
            → IsWritten characters (string_bytes self.old.text) (string_bytes self.old.run)
            → IsWritten (characters ++ shown meaning) (string_bytes self.new.text) (string_bytes self.new.run)) }
    {
        match meaning {
            Meaning::DesignatesG0(_) | Meaning::DesignatesG1(_) => Ok(()),
            Meaning::Mark(mark) => self.run.push(mark),
            Meaning::Base(base) => {
                self.text.push(base)?;
                self.place_run()
            }
            Meaning::Control(control) => {
                self.place_run()?;
                self.text.push(control)
            }
            Meaning::Subfield(code) => {
                self.place_run()?;
                self.text.push(DELIMITER)?;
                self.text.push(char::from(code))
            }
        }
    }

    /// The marks that waited stand where the text ends.
    fn place_run(&mut self) -> Result<(), AllocError>
        ensures text { OnOk result (string_bytes self.new.text ≡ string_bytes self.old.text ++ string_bytes self.old.run) }
        ensures run { OnOk result (string_bytes self.new.run ≡ []) }
    {
        self.text.push_str(self.run.as_str())?;
        self.run.clear();
        Ok(())
    }

    /// The text, with the marks that no base followed.
    pub fn finish(mut self) -> Result<String, AllocError>
        ensures { IfOk result (λ text. string_bytes text ≡ string_bytes self.text ++ string_bytes self.run) }
    {
        self.text.push_str(self.run.as_str())?;
        Ok(self.text)
    }
}
