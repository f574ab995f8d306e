ghost use Rattle.std.specs.Prelude.{◌≡◌, ◌≢◌, ◌<◌, ℕ, length};
ghost use Rattle.gate_log.specs.Format.{reading};
ghost use Rattle.gate_log.specs.Renew.{CanClose};
ghost use Rattle.gate_log.specs.declared.reading.Reading.TheVariants.{Foreign};

use crate::parse::same_front;

/// How the head of a file comes to be closed.
#[derive(Clone, Copy)]
pub enum Head {
    /// The file is so short that it is written anew.
    New,
    /// It is closed.
    Begun,
    /// It is open.
    Open,
}

// How the head of a file that isn't foreign can be closed.
pub fn head_of(bytes: &[u8]) -> Head
    requires { (at : ℕ) → reading bytes.now ≢ Foreign at }
    ensures { CanClose result bytes.now }
{
    if bytes.len() < 9 {
        return Head::New;
    }
    if same_front(bytes) < 8 {
        return Head::New;
    }
    if bytes[8] == 0 {
        return Head::Begun;
    }
    if bytes.len() == 9 {
        Head::New
    } else {
        Head::Open
    }
}
