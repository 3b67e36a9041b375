// A site with what its meter read: in its lead and in its month, a reading in each slot. Only `Metered::new` makes one.
ghost use Rattle.programmes.specs.SiteModels.{site_model};
ghost use Rattle.programmes.specs.Sites.{Full};

mod methods;

use crate::site::Site;

#[derive(Clone, Copy)]
pub struct Metered<'a> {
    pub(crate) site: Site<'a>,
    lead: &'a [u32],
    readings: &'a [u32],
    ghost full: { Full (site_model site) lead.now readings.now },
}
