// The writer as a value: numbers, and what has no bytes (RULES.md, "Writer and joining").
ghost use Rattle.std.specs.Prelude.{◌≡◌};
ghost use Rattle.bson.specs.Value as value;
ghost use Rattle.bson.specs.Writer as writer;
ghost use Rattle.refusal.specs.Said.{number_in};

use crate::DocWriter;
use refusal::Refusal;

impl DocWriter {
    // A double, by its bits.
    pub fn append_double(&mut self, out: &mut [u8], key: &[u8], bits: u64) -> Result<(), Refusal>
        ensures { writer.written (number_in result) self.new.words out.new
            ≡ writer.performed (writer.append key.now (value.double bits)) self.old.words out.old }
    {
        append_scalars::append_double(out, &mut self.words, key, bits)
    }

    // A boolean.
    pub fn append_bool(&mut self, out: &mut [u8], key: &[u8], b: bool) -> Result<(), Refusal>
        ensures { writer.written (number_in result) self.new.words out.new
            ≡ writer.performed (writer.append key.now (value.boolean b)) self.old.words out.old }
    {
        append_scalars::append_bool(out, &mut self.words, key, b)
    }

    // A datetime, in milliseconds.
    pub fn append_datetime(&mut self, out: &mut [u8], key: &[u8], n: i64) -> Result<(), Refusal>
        ensures { writer.written (number_in result) self.new.words out.new
            ≡ writer.performed (writer.append key.now (value.date_time n)) self.old.words out.old }
    {
        append_scalars::append_datetime(out, &mut self.words, key, n)
    }

    // An int32.
    pub fn append_int32(&mut self, out: &mut [u8], key: &[u8], n: i32) -> Result<(), Refusal>
        ensures { writer.written (number_in result) self.new.words out.new
            ≡ writer.performed (writer.append key.now (value.int32 n)) self.old.words out.old }
    {
        append_scalars::append_int32(out, &mut self.words, key, n)
    }

    // A timestamp.
    pub fn append_timestamp(
        &mut self,
        out: &mut [u8],
        key: &[u8],
        increment: u32,
        seconds: u32,
    ) -> Result<(), Refusal>
        ensures { writer.written (number_in result) self.new.words out.new
            ≡ writer.performed (writer.append key.now (value.timestamp increment seconds)) self.old.words out.old }
    {
        append_scalars::append_timestamp(out, &mut self.words, key, increment, seconds)
    }

    // An int64.
    pub fn append_int64(&mut self, out: &mut [u8], key: &[u8], n: i64) -> Result<(), Refusal>
        ensures { writer.written (number_in result) self.new.words out.new
            ≡ writer.performed (writer.append key.now (value.int64 n)) self.old.words out.old }
    {
        append_scalars::append_int64(out, &mut self.words, key, n)
    }

    // Undefined.
    pub fn append_undefined(&mut self, out: &mut [u8], key: &[u8]) -> Result<(), Refusal>
        ensures { writer.written (number_in result) self.new.words out.new
            ≡ writer.performed (writer.append key.now value.undefined) self.old.words out.old }
    {
        append_scalars::append_undefined(out, &mut self.words, key)
    }

    // Null.
    pub fn append_null(&mut self, out: &mut [u8], key: &[u8]) -> Result<(), Refusal>
        ensures { writer.written (number_in result) self.new.words out.new
            ≡ writer.performed (writer.append key.now value.null) self.old.words out.old }
    {
        append_scalars::append_null(out, &mut self.words, key)
    }

    // The min key.
    pub fn append_min_key(&mut self, out: &mut [u8], key: &[u8]) -> Result<(), Refusal>
        ensures { writer.written (number_in result) self.new.words out.new
            ≡ writer.performed (writer.append key.now value.min_key) self.old.words out.old }
    {
        append_scalars::append_min_key(out, &mut self.words, key)
    }

    // The max key.
    pub fn append_max_key(&mut self, out: &mut [u8], key: &[u8]) -> Result<(), Refusal>
        ensures { writer.written (number_in result) self.new.words out.new
            ≡ writer.performed (writer.append key.now value.max_key) self.old.words out.old }
    {
        append_scalars::append_max_key(out, &mut self.words, key)
    }
}
