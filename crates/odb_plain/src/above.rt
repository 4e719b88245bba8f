//! What the parts above a part of a predicate make of its truth: by it a predicate is judged without
//! a deep recursion, and without memory.
ghost use Rattle.std.specs.Prelude.{◌≡◌};
ghost use Rattle.odb_model.specs.Truth.{not_of, both_of, either_of};
ghost use Rattle.odb_plain.specs.Above.{whole_truth};

use odb_model::Truth;

/// The truth of the whole, for each truth that a part of it may have.
#[derive(Clone, Copy, Debug, PartialEq, Eq)]
pub(crate) struct Above {
    /// Where the part is True.
    pub(crate) at_true: Truth,
    /// Where it is False.
    pub(crate) at_false: Truth,
    /// Where it is Unknown.
    pub(crate) at_unknown: Truth,
}

impl Above {
    /// The part is the whole.
    pub(crate) fn whole() -> Above
        ensures { (t : Truth) → whole_truth result t ≡ t }
    {
        Above {
            at_true: Truth::True,
            at_false: Truth::False,
            at_unknown: Truth::Unknown,
        }
    }

    /// The truth of the whole, from that of the part.
    pub(crate) fn truth(self, part: Truth) -> Truth
        ensures { result ≡ whole_truth self part }
    {
        match part {
            Truth::True => self.at_true,
            Truth::False => self.at_false,
            Truth::Unknown => self.at_unknown,
        }
    }

    /// The same for the part of a NOT.
    pub(crate) fn with_not(self) -> Above
        ensures { (t : Truth) → whole_truth result t ≡ whole_truth self (not_of t) }
    {
        Above {
            at_true: self.at_false,
            at_false: self.at_true,
            at_unknown: self.at_unknown,
        }
    }

    /// The same for the left part of an AND, whose right part has this truth.
    pub(crate) fn with_and(self, right: Truth) -> Above
        ensures { (t : Truth) → whole_truth result t ≡ whole_truth self (both_of t right) }
    {
        match right {
            Truth::True => self,
            Truth::False => Above {
                at_true: self.at_false,
                at_false: self.at_false,
                at_unknown: self.at_false,
            },
            Truth::Unknown => Above {
                at_true: self.at_unknown,
                at_false: self.at_false,
                at_unknown: self.at_unknown,
            },
        }
    }

    /// The same for the left part of an OR, whose right part has this truth.
    pub(crate) fn with_or(self, right: Truth) -> Above
        ensures { (t : Truth) → whole_truth result t ≡ whole_truth self (either_of t right) }
    {
        match right {
            Truth::True => Above {
                at_true: self.at_true,
                at_false: self.at_true,
                at_unknown: self.at_true,
            },
            Truth::False => self,
            Truth::Unknown => Above {
                at_true: self.at_true,
                at_false: self.at_unknown,
                at_unknown: self.at_unknown,
            },
        }
    }
}
