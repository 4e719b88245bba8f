//! What a slot's body says before its images.
ghost use Rattle.std.specs.Prelude.{◌≡◌, ◌≤◌, length};
ghost use Rattle.odb_slots.specs.Bodies.{head_in, is_head};

/// How many bytes a body has before its images.
pub(crate) const HEAD: usize = 17;

/// What a slot's body says before its images.
#[derive(Clone, Copy, Debug)]
pub(crate) struct Head {
    pub(crate) kind: u8,
    pub(crate) table: u32,
    pub(crate) stamp: u64,
    /// How many bytes the key's image has.
    pub(crate) key: u16,
    /// How many bytes the row's image has.
    pub(crate) row: u16,
}

impl Head {
    /// The head that a body begins with.
    #[tactic(auto, unfolding(crate::specs::Bodies::head_in))]
    pub(crate) fn from_body(body: &[u8]) -> Head
        requires { 17 ≤ length body.now }
        ensures { result ≡ head_in body.now }
    {
        let mut table = [0; 4];
        table.copy_from_slice(&body[1..5]);
        let mut stamp = [0; 8];
        stamp.copy_from_slice(&body[5..13]);
        Head {
            kind: body[0],
            table: u32::from_be_bytes(table),
            stamp: u64::from_be_bytes(stamp),
            key: u16::from_be_bytes([body[13], body[14]]),
            row: u16::from_be_bytes([body[15], body[16]]),
        }
    }

    /// Whether the kind and the two lengths are in the slot grammar.
    pub(crate) fn is_in_grammar(self) -> bool
        ensures { result ≡ is_head self }
    {
        let is_kind = self.kind == 1 || (self.kind == 2 && self.row == 0);
        is_kind && 1 <= self.key && self.key <= 256 && self.key as u32 + self.row as u32 <= 1006
    }
}
