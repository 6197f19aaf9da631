// What a guest's call of "uv" takes, and the numbers that it is answered.

pub mod answering;
pub mod answers;
pub mod calls;
