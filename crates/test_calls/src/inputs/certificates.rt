//! Certificates.

use crate::marked::{begin, end, tell};
use cert_checker::Cert;
use std::io::Write;
use std::test::Fail;

/// Writes the certificate of a text.
pub fn written(rt: &HostRuntime, json: &str) -> Result<(), Fail> {
    let certificate = Cert::read(rt.alloc(), json.as_bytes())?;
    begin(rt);
    let written = certificate.write(rt.alloc());
    end(rt);
    match written {
        Ok(bytes) => rt.stdout().write_all(&bytes)?,
        Err(fault) => tell(rt, fault),
    }
    Ok(())
}
