// The writer as a value: texts and bytes (RULES.md, "Writer and joining").
ghost use Rattle.std.specs.Prelude.{◌≡◌};
ghost use Rattle.bson.specs.Value as value;
ghost use Rattle.bson.specs.Writer as writer;
ghost use Rattle.refusal.specs.Said.{number_in};

use crate::DocWriter;
use refusal::Refusal;

impl DocWriter {
    // A string.
    pub fn append_string(&mut self, out: &mut [u8], key: &[u8], text: &[u8]) -> Result<(), Refusal>
        ensures { writer.written (number_in result) self.new.words out.new
            ≡ writer.performed (writer.append key.now (value.string text.now)) self.old.words out.old }
    {
        append_bytes::append_string(out, &mut self.words, key, text)
    }

    // Code without a scope.
    pub fn append_code(&mut self, out: &mut [u8], key: &[u8], text: &[u8]) -> Result<(), Refusal>
        ensures { writer.written (number_in result) self.new.words out.new
            ≡ writer.performed (writer.append key.now (value.code text.now)) self.old.words out.old }
    {
        append_bytes::append_code(out, &mut self.words, key, text)
    }

    // A symbol.
    pub fn append_symbol(&mut self, out: &mut [u8], key: &[u8], text: &[u8]) -> Result<(), Refusal>
        ensures { writer.written (number_in result) self.new.words out.new
            ≡ writer.performed (writer.append key.now (value.symbol text.now)) self.old.words out.old }
    {
        append_bytes::append_symbol(out, &mut self.words, key, text)
    }

    // Binary data; under subtype 2 with its inner length.
    pub fn append_binary(
        &mut self,
        out: &mut [u8],
        key: &[u8],
        subtype: u8,
        contents: &[u8],
    ) -> Result<(), Refusal>
        ensures { writer.written (number_in result) self.new.words out.new
            ≡ writer.performed (writer.append key.now (value.binary subtype contents.now)) self.old.words
            out.old }
    {
        append_bytes::append_binary(out, &mut self.words, key, subtype, contents)
    }

    // A regular expression.
    pub fn append_regex(
        &mut self,
        out: &mut [u8],
        key: &[u8],
        pattern: &[u8],
        options: &[u8],
    ) -> Result<(), Refusal>
        ensures { writer.written (number_in result) self.new.words out.new
            ≡ writer.performed (writer.append key.now (value.regex pattern.now options.now))
            self.old.words out.old }
    {
        append_bytes::append_regex(out, &mut self.words, key, pattern, options)
    }

    // A DBPointer.
    pub fn append_dbpointer(
        &mut self,
        out: &mut [u8],
        key: &[u8],
        namespace: &[u8],
        id: &[u8; 12],
    ) -> Result<(), Refusal>
        ensures { writer.written (number_in result) self.new.words out.new
            ≡ writer.performed (writer.append key.now (value.db_pointer namespace.now id.now))
            self.old.words out.old }
    {
        append_bytes::append_dbpointer(out, &mut self.words, key, namespace, id)
    }

    // An ObjectId.
    pub fn append_object_id(
        &mut self,
        out: &mut [u8],
        key: &[u8],
        id: &[u8; 12],
    ) -> Result<(), Refusal>
        ensures { writer.written (number_in result) self.new.words out.new
            ≡ writer.performed (writer.append key.now (value.object_id id.now)) self.old.words out.old }
    {
        append_bytes::append_object_id(out, &mut self.words, key, id)
    }

    // A decimal128, by its bytes.
    pub fn append_decimal128(
        &mut self,
        out: &mut [u8],
        key: &[u8],
        bits: &[u8; 16],
    ) -> Result<(), Refusal>
        ensures { writer.written (number_in result) self.new.words out.new
            ≡ writer.performed (writer.append key.now (value.decimal128 bits.now)) self.old.words out.old }
    {
        append_bytes::append_decimal128(out, &mut self.words, key, bits)
    }
}
