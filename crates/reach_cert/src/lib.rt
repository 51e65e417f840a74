//! Certificates of reach: what each widget of a page can get at, as lines of text.
//!
//! docs/CERTIFICATES.md says what a certificate is and how it is written; `specs/Certs.antt` has the
//! same as definitions, and `specs/Walks.antt` what it shows.
#![tactic(auto)]

mod cert;
mod confining;
mod fault;
mod first_line;
mod judging;
mod laws;
mod lines;
mod needs;
mod printing;
mod reading;
mod words;

pub use cert::{Block, CellRow, Cert, Ref, RowKind};
pub use confining::confined;
pub use fault::CertFault;
pub use judging::judge;
pub use laws::{
    confined_has_shape, each_line_is_judged, each_slot_keeps_in, one_answer, raw_is_not_confined,
    walks_stay,
};
pub use printing::print_cert;
pub use reading::read_cert;
