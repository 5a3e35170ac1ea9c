//! A JSON document in progress.

ghost use Rattle.std.specs.Prelude.{◌≡◌, ◌++◌, ◌∷◌, [], IfOk, OnOk};
ghost use Rattle.json.specs.Print.{print};
ghost use Rattle.json.specs.Token.{begin_array, begin_object, end_array, end_object, key};
ghost use Rattle.trace_views.specs.Json.{flag_member, number_member, number_token, seconds_member, text_member};

use crate::numbers::millionths;
use itoa::Buffer;
use json::Writer;
use std::alloc::{AllocError, Global};
use std::marker::Model;

/// A JSON document in progress: the tokens written so far.
#[derive(Drop)]
pub(crate) struct Document {
    writer: Writer,
}

impl Model for Document {
    ghost use Rattle.std.specs.Prelude.{◌≡◌, List, []};
    ghost use Rattle.json.specs.Token.{Token, tokens_code};

    ghost Value = { List Token };

    ghost coded = { tokens_code };

    ghost view = { λ d. d.writer.tokens };

    ghost invariant = { λ d. d.writer.before ≡ [] };
}

impl Document {
    /// Returns a document with nothing in it.
    pub(crate) fn new(alloc: Global) -> Document
        ensures { result ≡ [] }
    {
        let writer = Writer::new(Vec::new(alloc));
        Document { writer }
    }

    /// Begins an object.
    pub(crate) fn begin_object(&mut self) -> Result<(), AllocError>
        ensures { OnOk result (self.new ≡ self.old ++ begin_object ∷ []) }
    {
        self.writer.begin_object()?;
        Ok(())
    }

    /// Ends an object.
    pub(crate) fn end_object(&mut self) -> Result<(), AllocError>
        ensures { OnOk result (self.new ≡ self.old ++ end_object ∷ []) }
    {
        self.writer.end_object()?;
        Ok(())
    }

    /// Begins an array.
    pub(crate) fn begin_array(&mut self) -> Result<(), AllocError>
        ensures { OnOk result (self.new ≡ self.old ++ begin_array ∷ []) }
    {
        self.writer.begin_array()?;
        Ok(())
    }

    /// Ends an array.
    pub(crate) fn end_array(&mut self) -> Result<(), AllocError>
        ensures { OnOk result (self.new ≡ self.old ++ end_array ∷ []) }
    {
        self.writer.end_array()?;
        Ok(())
    }

    /// Writes the name of the member that comes next.
    pub(crate) fn key(&mut self, name: &str) -> Result<(), AllocError>
        ensures { OnOk result (self.new ≡ self.old ++ key name.now ∷ []) }
    {
        self.writer.key(name)?;
        Ok(())
    }

    /// Writes a number as an item.
    pub(crate) fn number(&mut self, n: u64) -> Result<(), AllocError>
        ensures { OnOk result (self.new ≡ self.old ++ number_token n ∷ []) }
    {
        self.writer.u64(n)?;
        Ok(())
    }

    /// Writes a member whose value is a number.
    #[tactic(auto, unfolding(crate::specs::Json::number_member))]
    pub(crate) fn number_member(&mut self, name: &str, n: u64) -> Result<(), AllocError>
        ensures { OnOk result (self.new ≡ self.old ++ number_member name.now n) }
    {
        self.writer.key(name)?;
        self.writer.u64(n)?;
        Ok(())
    }

    /// Writes a member whose value is a large number.
    #[tactic(auto, unfolding(crate::specs::Json::number_member))]
    pub(crate) fn wide_member(&mut self, name: &str, n: u128) -> Result<(), AllocError>
        ensures { OnOk result (self.new ≡ self.old ++ number_member name.now n) }
    {
        let mut digits = Buffer::new();
        self.writer.key(name)?;
        self.writer.number(digits.format(n))?;
        Ok(())
    }

    /// Writes a member whose value is a time in seconds, given in microseconds, or another number of millionths.
    #[tactic(auto, unfolding(crate::specs::Json::seconds_member))]
    pub(crate) fn seconds_member(
        &mut self,
        alloc: Global,
        name: &str,
        micros: u128,
    ) -> Result<(), AllocError>
        ensures { OnOk result (self.new ≡ self.old ++ seconds_member name.now micros) }
    {
        let text = millionths(alloc, micros)?;
        self.writer.key(name)?;
        self.writer.number(text.as_str())?;
        Ok(())
    }

    /// Writes a member whose value is a text.
    #[tactic(auto, unfolding(crate::specs::Json::text_member))]
    pub(crate) fn text_member(&mut self, name: &str, text: &str) -> Result<(), AllocError>
        ensures { OnOk result (self.new ≡ self.old ++ text_member name.now text.now) }
    {
        self.writer.key(name)?;
        self.writer.string(text)?;
        Ok(())
    }

    /// Writes a member that is true or false.
    #[tactic(auto, unfolding(crate::specs::Json::flag_member))]
    pub(crate) fn flag_member(&mut self, name: &str, flag: bool) -> Result<(), AllocError>
        ensures { OnOk result (self.new ≡ self.old ++ flag_member name.now flag) }
    {
        self.writer.key(name)?;
        self.writer.boolean(flag)?;
        Ok(())
    }

    /// Returns the text of the document, one line.
    pub(crate) fn into_line(self) -> Result<Vec<u8>, AllocError>
        ensures { IfOk result (λ text. text.items ≡ print self ++ 10 ∷ []) }
    {
        let mut text = self.writer.into_inner();
        text.push(b'\n')?;
        Ok(text)
    }
}
