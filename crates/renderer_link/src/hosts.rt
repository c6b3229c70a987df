//! The addresses of a renderer's host.
use http_source::{RendererConfig, RendererField};
use std::alloc::{AllocError, AllocFailed, Global};
use std::net::{Ipv4Addr, Net, SocketAddr};
use std::str::from_utf8;
use window_request::Template;

/// How many addresses of a host are tried at most.
const MOST: usize = 4;

/// Why the hosts of a renderer aren't known.
#[derive(Clone, Copy, Debug, PartialEq, Eq)]
pub enum HostFault {
    /// The host of this member isn't found, or has no address; with the place of its entry in the list of layers.
    Unknown(RendererField, u32),
    /// Memory ran out.
    OutOfMemory,
}

impl From<AllocError> for HostFault {
    fn from(_e: AllocError) -> HostFault {
        HostFault::OutOfMemory
    }
}

impl<T: Drop> From<AllocFailed<T>> for HostFault {
    fn from(_e: AllocFailed<T>) -> HostFault {
        HostFault::OutOfMemory
    }
}

/// The addresses of a host, in the order in which they are tried.
#[derive(Clone, Copy)]
pub struct HostAddresses {
    found: [SocketAddr; MOST],
    count: usize,
}

impl HostAddresses {
    /// Those of a template's host, which is looked up here, once. `None` where it isn't found.
    fn of<R: Net>(rt: &R, template: &Template) -> Option<HostAddresses> {
        let none = SocketAddr::from((Ipv4Addr::UNSPECIFIED, 0));
        let mut found = [none; MOST];
        let name = from_utf8(template.host.as_slice()).ok()?;
        let count = rt.lookup_host(name, template.port, &mut found).ok()?;
        if count == 0 {
            return None;
        }
        Some(HostAddresses { found, count })
    }

    /// The addresses.
    pub fn addresses(&self) -> &[SocketAddr] {
        let (first, _) = self.found.split_at(self.count.min(MOST));
        first
    }
}

/// The addresses of all hosts of a renderer.
#[derive(Drop)]
pub struct Hosts {
    /// Those of the template for all layers.
    common: HostAddresses,
    /// Those of the templates of single layers, in their order.
    own: Vec<HostAddresses>,
}

impl Hosts {
    /// Looks up each host that a renderer's templates name.
    pub fn of<R: Net>(rt: &R, alloc: Global, config: &RendererConfig) -> Result<Hosts, HostFault> {
        let Some(common) = HostAddresses::of(rt, &config.template) else {
            return Err(HostFault::Unknown(RendererField::Url, 0));
        };
        let mut own = Vec::new(alloc);
        for (place, layer) in config.layers.iter().enumerate() {
            let Some(host) = HostAddresses::of(rt, &layer.template) else {
                let at = u32::try_from(place).unwrap_or(u32::MAX);
                return Err(HostFault::Unknown(RendererField::LayerUrl, at));
            };
            own.push(host)?;
        }
        Ok(Hosts { common, own })
    }

    /// The addresses of the host that is asked for the windows of a layer, by the place of the layer's own template, if it has one.
    pub fn at(&self, place: Option<usize>) -> &HostAddresses {
        match place {
            Some(place) => self.own.get(place).unwrap_or(&self.common),
            None => &self.common,
        }
    }
}
