mod searchers;
