// The dequantizer. Its one public function refuses or calls the loop, which stands in a private module.
#![tactic(auto)]

mod area;
mod dquant;

pub use dquant::evc_dquant;
