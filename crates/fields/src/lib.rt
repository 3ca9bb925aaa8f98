// Tagged fields: a tag of one byte, a length of two bytes, then that many bytes; all numbers big-endian.
// No function here asks anything of its caller: a byte past the end counts as 0, a part that is cut short is shorter,
// and what does not fit is not written.
#![tactic(auto)]

pub mod front; // front.rt: the tag, the length and the body of the field at the front of some bytes
pub mod numbers; // numbers.rt: the numbers of a body, read and written
pub mod parts; // parts.rt: parts of a slice, with the slice and the position as parameters
pub mod places; // places.rt: a value put at a place of a slice
pub mod reader; // reader.rt: the reader that carries the unread rest
pub mod tags; // tags.rt: the tags of a file's fields
