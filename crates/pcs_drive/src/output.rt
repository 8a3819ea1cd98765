// Text that is gathered, and written in large pieces.
ghost use Rattle.std.specs.Prelude.{◌≡◌, ◌≤◌, ◌+◌, ◌*◌, ◌++◌, ◌∷◌, ◌⊎◌, [], length, false, OnOk, OnErr};
ghost use Rattle.hex.specs.Hex.{encode_lower};
ghost use Rattle.pcs_io.specs.Faults.{HasCause};
ghost use Rattle.pcs_drive.specs.Writing.{Puts, Stays, BreaksOff, BreaksOffBefore, Extends};

use pcs_io::{Failed, Sink, put_all};
use std::marker::Model;

const ROOM: usize = 65536;

/// Text that isn't written yet, in an array, so that no call takes memory. Contracts speak of any
/// text that a caller has put since some start: all of it but what is held here is written.
#[derive(Drop)]
pub struct Output {
    text: [u8; ROOM],
    count: usize,
}

impl Model for Output {
    ghost use Rattle.std.specs.Prelude.{◌≡◌, ◌≤◌, ℕ, List, length, take};

    ghost Value = { List ℕ };

    ghost view = { λ s. take s.count s.text };

    ghost invariant = { λ s. (s.count ≤ 65536) × (length s.text ≡ 65536) };
}

impl Output {
    pub fn new() -> Self
        ensures { result ≡ [] }
    {
        Output {
            text: [0; ROOM],
            count: 0,
        }
    }

    /// Text that is these octets.
    pub fn holding(octets: &[u8]) -> Self
        requires { length octets.now ≤ 65536 }
        ensures { result ≡ octets.now }
    {
        let mut output = Output::new();
        output.append(octets);
        output
    }

    /// Puts the octets behind the text, which is written first where there is no room for them.
    pub fn put<W: Sink>(&mut self, sink: &mut W, octets: &[u8]) -> Result<(), Failed>
        requires { length octets.now ≤ 65536 }
        ensures ok { OnOk result (Puts (W.held sink.old) self.old octets.now (W.held sink.new) self.new) }
        ensures err { OnErr result (BreaksOffBefore (W.held sink.old) self.old (W.held sink.new)) }
        ensures cause { HasCause (W.faults sink.old) (W.faults sink.new) result }
        ensures grows { Extends (W.held sink.old) (W.held sink.new) result }
    {
        self.make_room(sink, octets.len())?;
        self.append(octets);
        Ok(())
    }

    /// Puts two lower-case hexadecimal digits for each octet, and a newline, behind the text.
    pub fn put_hex_line<W: Sink>(&mut self, sink: &mut W, octets: &[u8]) -> Result<(), Failed>
        requires { length octets.now ≤ 16384 }
        ensures ok { OnOk result (Puts (W.held sink.old) self.old (encode_lower octets.now ++ 10 ∷ []) (W.held sink.new) self.new) }
        ensures err { OnErr result (BreaksOffBefore (W.held sink.old) self.old (W.held sink.new)) }
        ensures cause { HasCause (W.faults sink.old) (W.faults sink.new) result }
        ensures grows { Extends (W.held sink.old) (W.held sink.new) result }
    {
        self.make_room(sink, 2 * octets.len() + 1)?;
        self.append_hex(octets);
        self.append(b"\n");
        Ok(())
    }

    /// Puts octets of any number behind the text. Both are written at once.
    pub fn put_long<W: Sink>(&mut self, sink: &mut W, octets: &[u8]) -> Result<(), Failed>
        ensures ok { OnOk result (Puts (W.held sink.old) self.old octets.now (W.held sink.new) self.new) }
        ensures err { OnErr result (BreaksOff (W.held sink.old) self.old octets.now (W.held sink.new)) }
        ensures cause { HasCause (W.faults sink.old) (W.faults sink.new) result }
        ensures grows { Extends (W.held sink.old) (W.held sink.new) result }
    {
        self.flush(sink)?;
        put_all(sink, octets)?;
        Ok(())
    }

    // Appends the octets, for which there is room.
    fn append(&mut self, octets: &[u8])
        requires { length self.old + length octets.now ≤ 65536 }
        ensures { self.new ≡ self.old ++ octets.now }
    {
        let end = self.count + octets.len();
        self.text[self.count..end].copy_from_slice(octets);
        self.count = end;
    }

    // Appends two lower-case hexadecimal digits for each octet, for which there is room.
    fn append_hex(&mut self, octets: &[u8])
        requires { length self.old + 2 * length octets.now ≤ 65536 }
        ensures text { self.new ≡ self.old ++ encode_lower octets.now }
        ensures size { length self.new ≡ length self.old + 2 * length octets.now }
    {
        let end = self.count + 2 * octets.len();
        hex::encode_to_slice(octets, &mut self.text[self.count..end]).unwrap();
        self.count = end;
    }

    /// Writes the text where there is no room for so many octets behind it.
    pub fn make_room<W: Sink>(&mut self, sink: &mut W, count: usize) -> Result<(), Failed>
        ensures ok { OnOk result (Stays (W.held sink.old) self.old (W.held sink.new) self.new) }
        ensures err { OnErr result (BreaksOffBefore (W.held sink.old) self.old (W.held sink.new)) }
        ensures room { OnOk result ((length self.new + count ≤ 65536) ⊎ (self.new ≡ [])) }
        ensures cause { HasCause (W.faults sink.old) (W.faults sink.new) result }
        ensures grows { Extends (W.held sink.old) (W.held sink.new) result }
    {
        if count <= ROOM - self.count {
            return Ok(());
        }
        self.flush(sink)
    }

    /// Writes the text.
    pub fn flush<W: Sink>(&mut self, sink: &mut W) -> Result<(), Failed>
        ensures ok { OnOk result (Stays (W.held sink.old) self.old (W.held sink.new) []) }
        ensures empty { OnOk result (self.new ≡ []) }
        ensures err { OnErr result (BreaksOffBefore (W.held sink.old) self.old (W.held sink.new)) }
        ensures cause { HasCause (W.faults sink.old) (W.faults sink.new) result }
        ensures grows { Extends (W.held sink.old) (W.held sink.new) result }
    {
        put_all(sink, &self.text[..self.count])?;
        self.count = 0;
        Ok(())
    }

    /// Writes the text, unless more can be had without reading.
    pub fn release<W: Sink>(&mut self, sink: &mut W, more: bool) -> Result<(), Failed>
        ensures ok { OnOk result (Stays (W.held sink.old) self.old (W.held sink.new) self.new) }
        ensures written { OnOk result ((more ≡ false) → self.new ≡ []) }
        ensures err { OnErr result (BreaksOffBefore (W.held sink.old) self.old (W.held sink.new)) }
        ensures cause { HasCause (W.faults sink.old) (W.faults sink.new) result }
        ensures grows { Extends (W.held sink.old) (W.held sink.new) result }
    {
        if more {
            return Ok(());
        }
        self.flush(sink)
    }
}
