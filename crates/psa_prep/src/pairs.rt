ghost use Rattle.std.specs.Prelude.{◌≡◌, ◌&&◌, not, true, false, IfOk};
ghost use Rattle.psa_prep.specs.Nodes.{nodes_of, IsBuilt};
ghost use Rattle.psa_prep.specs.Pairs.{Stands, swapped, swapped_pair, constant_pair, without};
ghost use Rattle.psa_prep.specs.Sound.{JoinsPairs};

use crate::builder::{Builder, FALSE, TRUE};
use psa_text::OutOfMemory;

/// Which of a truth and its opposite are asked for.
#[derive(Clone, Copy)]
pub struct Signs {
    pub yes: bool,
    pub no: bool,
}

impl Signs {
    /// Both are asked for.
    pub fn both() -> Signs
        ensures { result ≡ record { yes = true; no = true } }
    {
        Signs {
            yes: true,
            no: true,
        }
    }

    /// The truth alone is asked for.
    pub fn yes() -> Signs
        ensures { result ≡ record { yes = true; no = false } }
    {
        Signs {
            yes: true,
            no: false,
        }
    }

    /// Neither is asked for.
    pub fn none() -> Signs
        ensures { result ≡ record { yes = false; no = false } }
    {
        Signs {
            yes: false,
            no: false,
        }
    }

    /// Those that are not among the others.
    pub fn without(self, others: Signs) -> Signs
        ensures { result ≡ without self others }
    {
        Signs {
            yes: self.yes && !others.yes,
            no: self.no && !others.no,
        }
    }

    /// Whether neither is asked for.
    pub fn is_none(self) -> bool
        ensures { result ≡ (not self.yes && not self.no) }
    {
        !self.yes && !self.no
    }

    /// What is asked of the opposite.
    pub fn swapped(self) -> Signs
        ensures { result ≡ swapped self }
    {
        Signs {
            yes: self.no,
            no: self.yes,
        }
    }
}

/// The places of a node for a truth and of one for its opposite, each where it was asked for.
#[derive(Clone, Copy)]
pub struct Pair {
    pub yes: u64,
    pub no: u64,
}

impl Pair {
    /// The pair of the constants.
    pub fn constant(value: bool) -> Pair
        ensures { result ≡ constant_pair value }
    {
        if value {
            Pair {
                yes: TRUE,
                no: FALSE,
            }
        } else {
            Pair {
                yes: FALSE,
                no: TRUE,
            }
        }
    }

    /// The pair of the opposite.
    pub fn swapped(self) -> Pair
        ensures { result ≡ swapped_pair self }
    {
        Pair {
            yes: self.no,
            no: self.yes,
        }
    }
}

/// The conjunction, or the disjunction, of two truths, for the signs that are asked for.
pub fn join_pair(
    builder: &mut Builder,
    signs: Signs,
    both: bool,
    left: Pair,
    right: Pair,
) -> Result<Pair, OutOfMemory>
    requires built { IsBuilt builder.old }
    requires left { Stands (nodes_of builder.old) left }
    requires right { Stands (nodes_of builder.old) right }
    ensures { IfOk result (JoinsPairs signs both left right builder.old builder.new) }
{
    let yes = builder.join(signs.yes, both, left.yes, right.yes)?;
    let no = builder.join(signs.no, !both, left.no, right.no)?;
    Ok(Pair { yes, no })
}
