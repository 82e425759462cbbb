// How modules are listed.
// By the ended or the plain reading, and whether the line is shown at which a module that is not whole came to a halt.
#[derive(Clone, Copy)]
pub(crate) struct How {
    pub(crate) ended: bool,
    pub(crate) why: bool,
}
