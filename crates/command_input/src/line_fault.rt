//! Why a command line is no order.
ghost use Rattle.std.specs.Prelude.{◌≡◌};
ghost use Rattle.command_input.specs.LineFault.{bad_origin_line, line_status, line_text};

use command_line::NoCall;
use std::alloc::AllocError;
use zone_engine::{OUT_OF_MEMORY, status};

/// What is printed for a bad origin if `transfer` is possible in its place.
const BAD_ORIGIN: &str = "F46 BadOrigin: an origin is an absolute name or the word transfer";

/// Why a command line is no order.
#[derive(Debug, Drop)]
pub enum LineFault {
    /// An origin is none that the program takes.
    BadOrigin,
    /// What `clap` prints instead of matches, help included.
    Clap(String),
    /// Memory was refused.
    Memory,
}

impl From<AllocError> for LineFault {
    ghost use Rattle.command_input.specs.declared.line_fault.LineFault.TheVariants as line_faults;

    ghost from_gives = { λ _ e. e ≡ line_faults.Memory };

    fn from(_error: AllocError) -> LineFault {
        LineFault::Memory
    }
}

impl From<NoCall> for LineFault {
    ghost use Rattle.command_input.specs.LineFault.{told_fault};

    ghost from_gives = { λ no_call fault. fault ≡ told_fault no_call };

    fn from(no_call: NoCall) -> LineFault {
        match no_call {
            NoCall::Shown(text) | NoCall::Told(text) => LineFault::Clap(text),
            NoCall::Memory => LineFault::Memory,
        }
    }
}

impl LineFault {
    /// The text for the user, without a line feed at its end. Of a bad origin it is
    /// `F46 BadOrigin: an origin is an absolute name or the word transfer`.
    pub fn text(&self) -> &str
        ensures { result.now ≡ line_text bad_origin_line self.now }
    {
        self.text_saying(BAD_ORIGIN)
    }

    /// The text for the user, as [`text`](LineFault::text) gives it, where `bad_origin` is that of a
    /// bad origin.
    pub(crate) fn text_saying<'t>(&'t self, bad_origin: &'t str) -> &'t str
        ensures { result.now ≡ line_text bad_origin.now self.now }
    {
        match self {
            LineFault::BadOrigin => bad_origin,
            LineFault::Clap(text) => text.as_str(),
            LineFault::Memory => OUT_OF_MEMORY,
        }
    }

    /// The exit status.
    pub fn status(&self) -> u8
        ensures { result ≡ line_status self.now }
    {
        match self {
            LineFault::BadOrigin | LineFault::Clap(_) => status::BAD_COMMAND_LINE,
            LineFault::Memory => status::FAILED,
        }
    }
}
