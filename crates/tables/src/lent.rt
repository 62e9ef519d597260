// All eight tables together: lent to be read, and lent to be changed.
ghost use Rattle.std.specs.Prelude.{◌≡◌};
ghost use Rattle.tables.specs.Lent.{tables_lent, tables_in};

// The tables as they are lent to who only reads them.
#[derive(Clone, Copy)]
pub struct Lent<'a> {
    pub counts: &'a [u32],
    pub clients: &'a [u32],
    pub links: &'a [u32],
    pub keys: &'a [u32],
    pub values: &'a [u32],
    pub log: &'a [u32],
    pub writes: &'a [u32],
    pub reads: &'a [u32],
}

// The tables as they are lent to who may change each of them.
#[derive(Drop)]
pub struct Press<'a> {
    pub counts: &'a mut [u32],
    pub clients: &'a mut [u32],
    pub links: &'a mut [u32],
    pub keys: &'a mut [u32],
    pub values: &'a mut [u32],
    pub log: &'a mut [u32],
    pub writes: &'a mut [u32],
    pub reads: &'a mut [u32],
}

impl<'a> Press<'a> {
    // The same tables, to be read.
    pub fn lent(&self) -> Lent<'_>
        ensures { tables_lent result ≡ tables_in self.now }
    {
        Lent {
            counts: self.counts,
            clients: self.clients,
            links: self.links,
            keys: self.keys,
            values: self.values,
            log: self.log,
            writes: self.writes,
            reads: self.reads,
        }
    }
}
