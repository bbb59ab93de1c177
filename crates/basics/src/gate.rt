// The gates of the calculus: h, s, t, x and z on one wire, cx and cz on two, ccx on three.
ghost use Rattle.std.specs.Prelude.{◌≡◌, Some};
ghost use Rattle.basics.specs.Gates.{Decodes, arity as arity_of, code as code_of, unknown_words, word as word_of};

use std::error::Error;
use std::fmt;

// The last seat of cx and ccx is flipped; the other seats are controls.
#[derive(Clone, Copy, Debug, PartialEq, Eq)]
pub enum Gate {
    H,
    S,
    T,
    X,
    Z,
    Cx,
    Cz,
    Ccx,
}

impl Gate {
    // The number that stands for the gate in the byte format. A public call: a `From` beside it would say the same twice.
    pub fn code(self) -> u8
        ensures { result ≡ code_of self }
    {
        match self {
            Gate::H => 1,
            Gate::S => 2,
            Gate::T => 3,
            Gate::X => 4,
            Gate::Z => 5,
            Gate::Cx => 6,
            Gate::Cz => 7,
            Gate::Ccx => 8,
        }
    }

    // How many wires the gate acts on.
    pub fn arity(self) -> u8
        ensures { result ≡ arity_of self }
    {
        match self {
            Gate::H | Gate::S | Gate::T | Gate::X | Gate::Z => 1,
            Gate::Cx | Gate::Cz => 2,
            Gate::Ccx => 3,
        }
    }

    // The gate's word in OpenQASM 2.0.
    pub fn word(self) -> &'static str
        ensures { result.now ≡ word_of self }
    {
        match self {
            Gate::H => "h",
            Gate::S => "s",
            Gate::T => "t",
            Gate::X => "x",
            Gate::Z => "z",
            Gate::Cx => "cx",
            Gate::Cz => "cz",
            Gate::Ccx => "ccx",
        }
    }
}

// A number that is no gate's code.
#[derive(Clone, Copy, Debug, PartialEq, Eq)]
pub struct UnknownCode(pub u8);

impl TryFrom<u8> for Gate {
    type Error = UnknownCode;

    ghost try_from_gives = { Decodes };

    fn try_from(code: u8) -> Result<Gate, UnknownCode> {
        match code {
            1 => Ok(Gate::H),
            2 => Ok(Gate::S),
            3 => Ok(Gate::T),
            4 => Ok(Gate::X),
            5 => Ok(Gate::Z),
            6 => Ok(Gate::Cx),
            7 => Ok(Gate::Cz),
            8 => Ok(Gate::Ccx),
            _ => Err(UnknownCode(code)),
        }
    }
}

impl fmt::Display for Gate {
    ghost output = { λ gate. Some (word_of gate) };

    fn fmt<W: fmt::Write>(&self, f: &mut fmt::Formatter<W>) -> fmt::Result {
        f.write_str(self.word())
    }
}

impl fmt::Display for UnknownCode {
    ghost output = { λ unknown. Some (unknown_words unknown) };

    fn fmt<W: fmt::Write>(&self, f: &mut fmt::Formatter<W>) -> fmt::Result {
        let code = self.0;
        write!(f, "no gate has code {code}")
    }
}

impl Error for UnknownCode {}
