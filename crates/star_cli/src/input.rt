// The source of a session's statements.

/// Standard input: a reader, and whether a person types at a terminal, who gets prompts on
/// standard error.
#[derive(Drop)]
pub struct StandardInput<I> {
    pub reader: I,
    pub is_terminal: bool,
}
