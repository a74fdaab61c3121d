//! Addresses of hosts: what their texts say, and how they are printed (RFC 1035 3.4.1, RFC 4291
//! 2.2, RFC 5952 4).
mod groups;
mod ipv4;
mod ipv6;
mod printing;

pub use groups::four_groups_of;
pub(crate) use groups::octet_of_pair;
pub use ipv4::ipv4_octets_of;
pub use ipv6::ipv6_octets_of;
pub use printing::{push_ipv4, push_ipv6};
