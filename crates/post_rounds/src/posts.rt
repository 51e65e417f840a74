//! Posts, and the events that they become.
use code_units::Text;

/// A post: the name of the slot that it is to, and its text.
#[derive(Drop)]
pub struct Post {
    pub to: Text,
    pub text: Text,
}

/// What a receiver is told of a post: the sender's name, a space and the text.
#[derive(Drop)]
pub struct PostEvent {
    pub value: Text,
}
