use adg_base::vector::VectorList;

/// The vectors that a thread writes as one record.
#[derive(Debug, Drop)]
pub struct Writing {
    pub thread: u8,
    pub vectors: VectorList,
}
