//! Master files in presentation format that are loaded in pieces or from a reader.

mod accepting;
mod comparing;
mod normalising;
mod presentation_loader;
mod refusal;
mod source_form;

pub use accepting::accepted_source;
pub use comparing::compare_sources;
pub use normalising::normalise_source;
pub use presentation_loader::PresentationLoader;
pub use refusal::PresentationRefusal;
pub use source_form::SourceForm;
