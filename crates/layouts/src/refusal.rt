// Why the check of a layout refuses it.
#[derive(Clone, Copy)]
pub enum LayoutRefusal {
    UnfitFigures,
}
