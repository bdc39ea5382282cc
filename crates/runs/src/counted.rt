// A step's answer, with the free granules of the image that the step leaves.
use request_laws::Refusal;
use runs_laws::Free;

#[derive(Clone, Copy)]
pub struct Counted<W> {
    pub answer: Result<W, Refusal>,
    pub free: Free,
}
