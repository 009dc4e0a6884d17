// One row of a well-formed store: the images of the variables 1..n.
ghost use Rattle.store.specs.Stores.{FormedRow};

#[derive(Clone, Copy)]
pub struct Row<'a> {
    pub images: &'a [u16],
    pub ghost formed: { FormedRow images.now },
}
