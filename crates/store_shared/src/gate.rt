//! Gates, which a worker asks after each part.

ghost use Rattle.std.specs.Prelude.{IfErr, OnOk, ℕ, ⊤};
ghost use Rattle.store_shared.specs.Gates.{GateRule, IsGateAnswer};

use store_board::Draw;

/// What a gate returns to end an upload.
#[derive(Clone, Copy, Debug, PartialEq, Eq)]
pub enum GateStop {
    /// The upload is no longer wanted.
    Stop,
    /// The gate failed, with its own code.
    Fault(u64),
}

/// What a worker asks after it has hashed a part, before it hands the part over. An implementation states its rule: for which parts it may
/// return Stop, for which parts each code, and what it means that a part has passed.
pub trait Gate {
    ghost rule: { Self → GateRule };

    /// Whether the part with this number may pass.
    fn passed(&self, part: Draw) -> Result<(), GateStop>
        ensures err { IfErr result (IsGateAnswer (rule self.now) part.number) }
        ensures ok { OnOk result ((rule self.now).has_passed part.number) };
}

/// A gate that passes all parts.
#[derive(Clone, Copy, Debug, Drop)]
pub struct PassAll;

impl Gate for PassAll {
    ghost rule = { λ gate. record { may_stop = λ part. ⊥; may_fault = λ part code. ⊥; has_passed = λ part. ⊤ } };

    fn passed(&self, _part: Draw) -> Result<(), GateStop> {
        Ok(())
    }
}
