//! What a session answers.

/// The answer to a line, an import or a save: the bytes to be written, whether a refusal is among
/// them, and whether the session ends.
#[derive(Drop)]
pub struct Step {
    pub reply: Vec<u8>,
    pub refused: bool,
    pub quit: bool,
}
