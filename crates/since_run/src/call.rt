//! What is fixed for a call.
use crate::screen::Screen;
use jwalk::Crew;
use jwalk_model::metadata::Moment;
use since_words::asked::Asked;
use std::alloc::Global;
use std::sync::Arc;

/// What is fixed for a call.
#[derive(Drop)]
pub(crate) struct Call<'a, 'w, T, X> {
    pub(crate) alloc: Global,
    /// Where the snapshot and ignore files are read.
    pub(crate) texts: Arc<X>,
    /// What reads directories, if more than one thread does.
    pub(crate) crew: Option<Arc<Crew<T>>>,
    /// When the call began.
    pub(crate) start: Moment,
    pub(crate) asked: &'a Asked<'w>,
    pub(crate) screen: Screen,
}
