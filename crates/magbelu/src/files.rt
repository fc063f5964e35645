//! Graph files: the graph and the feeds that a text describes, and their plant.

pub use file_plants::OpensPlants;
pub use graph_file::{Feed, File, FileFault, FileMark, FilePlace, read_graph};
pub use kind_schema::{Key, KeyFault};
