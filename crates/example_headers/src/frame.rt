//! Frames: a byte of flags, a byte with the length of the body, and the body.

ghost use Rattle.std.specs.Prelude.{◌≡◌, ◌<◌, ℕ, List, length, IsOkAnd, IfOk, IfErr};
ghost use Rattle.enumset.specs.Sets as set;
ghost use Rattle.example_headers.specs.Frames.{bit, known, reserved, wire_of, fault_of};

use crate::flag::Flag;
use crate::flags::relay_flags;
use enumset::set::MixedEnumSet;
use std::alloc::{AllocError, Global};
use std::fmt;

/// A frame.
#[derive(Clone, Copy, Debug)]
pub struct Frame<'a> {
    /// The flags, also of later versions.
    pub flags: MixedEnumSet<Flag>,
    pub body: &'a [u8],
}

/// Why bytes are not a frame.
#[derive(Clone, Copy, Debug, PartialEq, Eq)]
pub enum FrameFault {
    /// The flags or the length are missing.
    NoHeader,
    /// The body does not have as many bytes as were stated.
    WrongLength { stated: u8, has: usize },
}

impl fmt::Display for FrameFault {
    ghost use Rattle.std.specs.Prelude.{Some};
    ghost use Rattle.example_headers.specs.Texts.{frame_fault_text};

    ghost output = { λ fault. Some (frame_fault_text fault) };

    fn fmt<W: fmt::Write>(&self, f: &mut fmt::Formatter<W>) -> fmt::Result {
        match self {
            FrameFault::NoHeader => write!(f, "no flags or no length"),
            FrameFault::WrongLength { stated, has } => {
                write!(f, "a body of {has} bytes, where {stated} were stated")
            }
        }
    }
}

/// The flags and how long the body is, as `Urgent | [5], 2 bytes`. A flag of later versions is the number of its bit.
impl fmt::Display for Frame<'_> {
    ghost use Rattle.example_headers.specs.Texts.{frame_text};

    ghost output = { λ frame.
        frame_text ⟦<MixedEnumSet<Flag> as fmt::Display>⟧.output frame.flags frame.body.now };

    fn fmt<W: fmt::Write>(&self, f: &mut fmt::Formatter<W>) -> fmt::Result {
        if self.flags.is_empty() {
            f.write_str("no flags")?;
        } else {
            fmt::Display::fmt(&self.flags, f)?;
        }
        write!(f, ", {} bytes", self.body.len())
    }
}

impl Frame<'_> {
    /// The frame that is sent on: other flags, and the same body.
    pub fn relayed(&self) -> Frame<'_>
        ensures known { known result.flags
            ≡ set.insert (set.remove (known self.now.flags) (bit Flag.WantsReceipt)) (bit Flag.Relayed) }
        ensures reserved { reserved result.flags ≡ reserved self.now.flags }
        ensures body { result.body.now ≡ self.now.body.now }
    {
        Frame {
            flags: relay_flags(self.flags),
            body: self.body,
        }
    }
}

/// The frame that bytes are, or why they are not a frame.
pub fn read_frame(bytes: &[u8]) -> Result<Frame<'_>, FrameFault>
    ensures written { IfOk result (λ frame. bytes.now ≡ wire_of frame.flags frame.body.now) }
    ensures back { (flags : set.BitSet) (body : List ℕ) → bytes.now ≡ wire_of flags body →
        IsOkAnd result (λ frame. (frame.flags ≡ flags) × (frame.body.now ≡ body)) }
    ensures short { IfOk result (λ frame. length frame.body.now < 256) }
    ensures fault { IfErr result (λ fault. fault ≡ fault_of bytes.now) }
{
    let [flags, stated, body @ ..] = bytes else {
        return Err(FrameFault::NoHeader);
    };
    if body.len() != usize::from(*stated) {
        return Err(FrameFault::WrongLength {
            stated: *stated,
            has: body.len(),
        });
    }
    Ok(Frame {
        flags: MixedEnumSet::from_repr(*flags),
        body,
    })
}

/// The bytes of a frame.
pub fn write_frame(alloc: Global, frame: &Frame<'_>) -> Result<Vec<u8>, AllocError>
    requires { length frame.now.body.now < 256 }
    ensures { IfOk result (λ bytes. bytes.items ≡ wire_of frame.now.flags frame.now.body.now) }
{
    let mut bytes = Vec::with_capacity(alloc, frame.body.len() + 2)?;
    bytes.push(frame.flags.as_repr())?;
    bytes.push(frame.body.len() as u8)?;
    bytes.extend_from_slice(frame.body)?;
    Ok(bytes)
}
