//! The texts of operands and of what an UPDATE sets.
ghost use Rattle.odb_model.specs.Canonical.{operand_text, term_text, expression_text, assignment_text};

use crate::put::{Put, put_all};
use odb_model::{Assignment, Expression, Operand, Term};
use std::alloc::AllocError;

impl Put for Operand {
    ghost text = { operand_text };

    fn put(&self, out: &mut String) -> Result<(), AllocError> {
        match self {
            Operand::Column(name) => name.put(out),
            Operand::Literal(value) => value.put(out),
        }
    }
}

impl Put for Term {
    ghost text = { term_text };

    fn put(&self, out: &mut String) -> Result<(), AllocError> {
        out.push_str(if self.minus { " - " } else { " + " })?;
        self.operand.put(out)
    }
}

impl Put for Expression {
    ghost text = { expression_text };

    fn put(&self, out: &mut String) -> Result<(), AllocError> {
        self.first.put(out)?;
        put_all(out, self.rest.as_slice())
    }
}

impl Put for Assignment {
    ghost text = { assignment_text };

    fn put(&self, out: &mut String) -> Result<(), AllocError> {
        self.column.put(out)?;
        out.push_str(" = ")?;
        self.value.put(out)
    }
}
