// The direction in which a division rounds. It rests at down.
#[derive(Clone, Copy)]
pub enum Direction {
    Down,
    Up,
}
