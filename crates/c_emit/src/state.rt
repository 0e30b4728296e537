// The state of the walk.
use crate::parts::{Frame, Info, Note};
use c_terms::CNode;
use std::collections::VecDeque;

/// A walk along nodes: what is written, the code where it stands and those around it, and what is known of the codes,
/// and of the calls and packages, to come.
#[derive(Drop)]
pub struct Walk {
    pub out: Vec<CNode>,
    pub current: Frame,
    pub outer: VecDeque<Frame>,
    pub infos: VecDeque<Info>,
    pub notes: VecDeque<Note>,
}
