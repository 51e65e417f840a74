//! Why a script is refused.
use adsafe_rules::CheckFault;
use first_breach::Breach;
use js_parser::ParseFault;
use js_tokens::TokenFault;
use node_rules::rule_numbers::{A01, A20};

/// Why a script is refused.
#[derive(Clone, Copy, PartialEq, Eq, Drop)]
pub enum ScriptFault {
    /// Its first broken rule, of A01 to A20, and the byte where.
    Broken(Breach),
    /// There was no memory to judge it.
    Memory,
}

impl From<TokenFault> for ScriptFault {
    ghost use Rattle.std.specs.Prelude.{◌≡◌};
    ghost use Rattle.script_check.specs.Faults.{fault_of_tokens};

    ghost from_gives = { λ f e. e ≡ fault_of_tokens f };

    fn from(fault: TokenFault) -> ScriptFault {
        match fault {
            TokenFault::BadToken { at } => ScriptFault::Broken(Breach { rule: A01, at }),
            TokenFault::Memory => ScriptFault::Memory,
        }
    }
}

impl From<ParseFault> for ScriptFault {
    ghost use Rattle.std.specs.Prelude.{◌≡◌};
    ghost use Rattle.script_check.specs.Faults.{fault_of_parse};

    ghost from_gives = { λ f e. e ≡ fault_of_parse f };

    fn from(fault: ParseFault) -> ScriptFault {
        match fault {
            ParseFault::Syntax { at } => ScriptFault::Broken(Breach { rule: A01, at }),
            ParseFault::TooDeep { at } => ScriptFault::Broken(Breach { rule: A20, at }),
            ParseFault::Memory => ScriptFault::Memory,
        }
    }
}

impl From<CheckFault> for ScriptFault {
    ghost use Rattle.std.specs.Prelude.{◌≡◌};
    ghost use Rattle.script_check.specs.Faults.{fault_of_check};

    ghost from_gives = { λ f e. e ≡ fault_of_check f };

    fn from(fault: CheckFault) -> ScriptFault {
        match fault {
            CheckFault::Broken { rule, at } => ScriptFault::Broken(Breach { rule, at }),
            CheckFault::Memory => ScriptFault::Memory,
        }
    }
}
