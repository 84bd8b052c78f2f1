//! Laws about first paths and the certificates that have them. Each function exists for its
//! contract alone: a caller has the law as a fact.

ghost use Rattle.mk_find.specs.WayLaws.{FirstPathIsOne, FirstPathIsShortest, CertificateIsOne, CertificateIsShortest, EntriesAreShortest};

use mk_build::build_laws::names_have_one_number;
use mk_graph_search::laws::{precedes_as_read, precedes_is_an_order};

/// From a recipe to a file there is at most one first path, with one finish.
pub fn first_path_is_one()
    ensures { FirstPathIsOne }
{
    precedes_is_an_order();
}

/// No path to the file is shorter than the first path.
pub fn first_path_is_shortest()
    ensures { FirstPathIsShortest }
{
    precedes_as_read();
}

/// At most one certificate meets `IsCertificate`.
pub fn certificate_is_one()
    ensures { CertificateIsOne }
{
    first_path_is_one();
}

/// No path for a read is shorter than that of its entry.
pub fn entries_are_shortest()
    ensures { EntriesAreShortest }
{
    first_path_is_shortest();
}

/// No way is shorter than the certificate's.
pub fn certificate_is_shortest()
    ensures { CertificateIsShortest }
{
    entries_are_shortest();
    names_have_one_number();
}
