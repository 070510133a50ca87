// A frame, and the link that it came over: every test is asked of both.
use filter::ast::LinkType;

#[derive(Clone, Copy)]
pub struct Packet<'a> {
    pub link: LinkType,
    pub frame: &'a [u8],
}
