//! The addresses of the labels of a segment, by label.

use bc_machine_defs::Image;
use bc_word::Memory;
use std::alloc::Global;

/// A label, its position among the labels of its segment, and its address. The order is that of the fields.
#[derive(Clone, Copy, PartialEq, Eq, PartialOrd, Ord)]
struct Labelled {
    label: u16,
    position: usize,
    address: u16,
}

/// The labels of a segment, sorted, with their addresses.
#[derive(Drop)]
pub struct LabelIndex {
    labels: Vec<Labelled>,
}

impl LabelIndex {
    /// The labels of this segment of an image; none if there is no such segment. `Memory` if an allocation fails.
    pub fn new(alloc: Global, image: &Image, segment: usize) -> Result<LabelIndex, Memory> {
        let mut labels = Vec::new(alloc);
        if let Some(place) = image.places.as_slice().get(segment) {
            for (position, (label, address)) in place.labels.as_slice().iter().enumerate() {
                labels.push(Labelled {
                    label: label.get(),
                    position,
                    address: address.get(),
                })?;
            }
        }
        labels.sort_unstable();
        Ok(LabelIndex { labels })
    }

    /// The address of a label, if the segment sets it; the first one if it does so more than once.
    pub fn address(&self, label: u16) -> Option<u16> {
        let labels = self.labels.as_slice();
        let first = labels.partition_point(|labelled| labelled.label < label);
        match labels.get(first) {
            Some(labelled) if labelled.label == label => Some(labelled.address),
            _ => None,
        }
    }
}
