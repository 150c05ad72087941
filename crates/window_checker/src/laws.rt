//! Laws of valid certificates. A call does nothing: its contract is the law.
ghost use Rattle.window_checker.specs.ValidCerts.{CertsBoundPebblings};

/// The bound of a valid certificate by windows is at most the cost of each complete pebbling.
pub fn valid_certs_bound_pebblings()
    ensures { CertsBoundPebblings }
{
    window_laws::laws::window_tables_bound_pebblings();
    window_floor::laws::window_floor_holds();
}
